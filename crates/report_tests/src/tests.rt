mod masks;
mod reports;
