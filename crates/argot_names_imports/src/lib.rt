//! The imports of a folder's files, which package each finds, and the packages that the main one leads to.
//!
//! `text_value` is the value of a text literal, `imports_of` and `all_imports` are the imports of a file and of all files,
//! what a path finds (`Finds` of argot_names_rules) is known by tables of the first file of each folder and library text, and
//! `survey_from` meets `IsSurvey`: the imports, what each finds, the first file of each file's package, and the first files
//! of exactly the packages that imports lead to, the main one first. `Reached` is a survey with what each of its packages is
//! (number, path, name, files), and `IsReach` says so; `package_of` gives the number of a file's package, `target_number`
//! that of the package that an import finds, by one look into a table. The crates above stand on `Reached`. Every call is
//! exact over any lists, and takes time that is linear in them but for hashing.
#![tactic(auto)]

mod all_written;
mod escapes;
mod find;
mod firsts;
mod folders;
mod founds;
mod graph;
mod handed;
mod leaders;
mod literals;
mod numbers;
mod paths;
mod reached;
mod reaching;
mod sites;
mod spelled;
mod survey;
mod written;

pub use all_written::all_imports;
pub use find::Found;
pub use firsts::{Sort, firsts_of};
pub use folders::folder_of;
pub use founds::import_at;
pub use graph::{found_at, graph_of, leader_at, target_of};
pub use handed::{bytes_at, nodes_at, tokens_at};
pub use literals::text_value;
pub use numbers::{package_of, target_number};
pub use paths::library_text;
pub use reached::Reached;
pub use reaching::reach_from;
pub use sites::{Site, node_at, site_at};
pub use spelled::spelled_at;
pub use survey::{Survey, survey_from};
pub use written::{Written, imports_of};
