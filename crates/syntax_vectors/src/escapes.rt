// The calls of `literal_escape`.
mod calls;
mod every;
mod plain;
mod rows;
