//! What is read: a script, and schedules, each on a line.

/// The word with which a schedule begins.
const WORD: &[u8] = b"schedule";

/// The script, and the lines of its schedules: from the first line on that begins with `schedule`.
pub(crate) fn split(text: &[u8]) -> (&[u8], &[u8]) {
    let mut begins = true;
    for place in 0..text.len() {
        let (script, schedules) = text.split_at(place);
        if begins && schedules.starts_with(WORD) {
            return (script, schedules);
        }
        begins = text[place] == b'\n';
    }
    text.split_at(text.len())
}

/// The first line, with its end, and what comes after it.
pub(crate) fn first_line(text: &[u8]) -> (&[u8], &[u8]) {
    match text.iter().position(|byte| *byte == b'\n') {
        Some(place) => text.split_at(place.saturating_add(1).min(text.len())),
        None => text.split_at(text.len()),
    }
}
