// A folder that is written down as one text.
use argot_text::Memory;
use std::alloc::Global;

/// The module's path, and the paths and texts of the files.
#[derive(Drop)]
pub struct Written<'t> {
    pub module: &'t str,
    pub files: Vec<(&'t str, &'t str)>,
}

/// The folder of a text; what stands behind no path is passed over.
pub fn folder_in(alloc: Global, text: &str) -> Result<Written<'_>, Memory> {
    let mut parts = text.split("\n-- ");
    let module = parts.next().unwrap_or("");
    let mut files = Vec::new(alloc);
    for part in parts {
        if let Some(file) = part.split_once(" --\n") {
            files.push(file)?;
        }
    }
    Ok(Written { module, files })
}
