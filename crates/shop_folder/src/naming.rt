use crate::place::Place;

/// The last segment of a path.
fn last_segment(path: &str) -> &str {
    match path.rsplit_once('/') {
        Some((_, name)) => name,
        None => path,
    }
}

/// The controller in the file of this path: where a folder is served, what stands behind that, as
/// `mis` or `press/job-17`.
pub fn name_of<'t>(place: &Place<'_>, path: &'t str) -> &'t str {
    match place {
        Place::File(_) => last_segment(path),
        Place::Folder(folder) => match path.strip_prefix(*folder) {
            Some(name) => name.strip_prefix("/").unwrap_or(name),
            None => path,
        },
    }
}
