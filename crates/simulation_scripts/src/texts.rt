//! The texts of scripts.

use crate::draws::Draws;

/// One of few texts: states of an order, the empty one, ones of punctuation, and one of the greatest length.
pub(crate) fn draw_text(draws: &mut Draws) -> &'static str {
    match draws.below(10) {
        0 => "",
        1 | 2 => "new",
        3 => "paid",
        4 => "sent",
        5 => "none",
        6 => " // ~!#",
        7 => "newer",
        8 => "0123456789abcdefghijklmnopqrstu",
        _ => "0123456789abcdefghijklmnopqrstuv",
    }
}
