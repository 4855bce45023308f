//! Words for numbers.

/// Returns the words of this number in a table, or these others, if it has none. A table is a text
/// with a line for each number: the number, a space and its words.
pub fn words_of(table: &'static str, number: i64, others: &'static str) -> &'static str {
    for line in table.lines() {
        if let Some((key, words)) = line.split_once(' ') {
            if is_number(key, number) {
                return words;
            }
        }
    }
    others
}

// Returns whether a text is this number in decimal.
fn is_number(text: &str, number: i64) -> bool {
    match text.parse::<i64>() {
        Ok(found) => found == number,
        Err(_) => false,
    }
}
