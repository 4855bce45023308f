//! Images in HTML.

use crate::page::push_text_value;
use esc_values::base64_text::Encoded;
use page_input::Picture;
use std::alloc::{AllocError, Global};

/// An element of an image, whose bytes are in its address; its text is its name. The error is that
/// memory was refused.
pub fn image(alloc: Global, picture: &Picture, is_inline: bool) -> Result<String, AllocError> {
    let mut text = String::new(alloc);
    match push_image(&mut text, picture, is_inline) {
        Ok(()) => Ok(text),
        Err(error) => Err(error),
    }
}

fn push_image(text: &mut String, picture: &Picture, is_inline: bool) -> Result<(), AllocError> {
    fallible_alloc::push_str(text, opening(is_inline))?;
    fallible_alloc::push_str(text, " alt=\"")?;
    push_name(text, picture.name.as_str())?;
    fallible_alloc::push_str(text, "\" src=\"data:")?;
    fallible_alloc::push_str(text, picture.kind.media_type())?;
    fallible_alloc::push_str(text, ";base64,")?;
    fallible_alloc::push_display(text, &Encoded(&picture.bytes))?;
    fallible_alloc::push_str(text, "\">")
}

// The name of an image, or its kind.
fn push_name(text: &mut String, name: &str) -> Result<(), AllocError> {
    if name.is_empty() {
        return fallible_alloc::push_str(text, "image");
    }
    push_text_value(text, name)
}

fn opening(is_inline: bool) -> &'static str {
    if is_inline {
        "<img style=\"display:block;max-width:100%;height:auto;\""
    } else {
        "<img class=\"es-image\""
    }
}
