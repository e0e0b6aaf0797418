// Folders that are written down, with what is told of each where it is told.
pub mod again;
pub mod left_out;
pub mod packages;
pub mod scopes;
pub mod smallest;
