mod endings;
mod faults;
mod words;
