mod drawing;
mod last_numbers;
mod objects;
mod second_version;
