//! This module holds the keys of a file, as they are read.
ghost use Rattle.std.specs.Prelude.{◌≡◌, [], ◌∷◌};
ghost use Rattle.esc_iterm.specs.Keys.{held, values, values_after};

// These are the values of the keys of a file, if they are there.
#[derive(Clone, Copy)]
pub(crate) struct FileKeys<'a> {
    pub(crate) name: Option<&'a str>,
    pub(crate) size: Option<&'a str>,
    pub(crate) width: Option<&'a str>,
    pub(crate) height: Option<&'a str>,
    pub(crate) preserve_aspect_ratio: Option<&'a str>,
    pub(crate) inline: Option<&'a str>,
    pub(crate) do_not_move_cursor: Option<&'a str>,
}

impl<'a> FileKeys<'a> {
    // Returns the values with this one in place of the one that the key had.
    pub(crate) fn with(self, key: &str, value: &'a str) -> FileKeys<'a>
        ensures { held (values result)
            ≡ held (values_after (values self.entry) ((key.now, value.now) ∷ [])) }
    {
        let mut keys = self;
        match key {
            "name" => keys.name = Some(value),
            "size" => keys.size = Some(value),
            "width" => keys.width = Some(value),
            "height" => keys.height = Some(value),
            "preserveAspectRatio" => keys.preserve_aspect_ratio = Some(value),
            "inline" => keys.inline = Some(value),
            "doNotMoveCursor" => keys.do_not_move_cursor = Some(value),
            _ => {}
        }
        keys
    }
}
