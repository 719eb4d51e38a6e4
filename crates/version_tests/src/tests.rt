mod parts;
mod versions;
