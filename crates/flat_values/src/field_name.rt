//! This module defines the names of fields.
ghost use Rattle.std.specs.Prelude.{◌≡◌};
ghost use Rattle.flat_values.specs.Fields.{name_number};

/// The name says which part of a command or an image a field is, and what it holds: a number, a
/// flag, which is the number 0 or 1, a text or a size. The numbers are those of the header for C,
/// so a new name comes last.
#[derive(Clone, Copy)]
pub enum FieldName {
    /// A text: a title, the name of an icon, a notification, or the text for the clipboard or the
    /// badge.
    Text,
    /// A text: a part of a command that is kept as its parts. In `Unspecified` it need not be
    /// UTF-8.
    Part,
    /// A text: the path or the address of a directory.
    Directory,
    /// A text: the address of a link.
    Uri,
    /// A flag: whether the terminal found the link in the text itself.
    Implicit,
    /// A text: the key of a link's parameter. Its value follows.
    Key,
    /// A text: the value of a link's parameter, or of a variable.
    Value,
    /// A number: the selections, as bits of `Selection`.
    Selection,
    /// A number: a place of the palette, from 0 to 255.
    PaletteIndex,
    /// A number: a dynamic colour, from 10 to 19.
    DynamicColor,
    /// A number: the red of a colour, from 0 to 65535. Green and blue follow.
    Red,
    /// A number: the green, from 0 to 65535.
    Green,
    /// A number: the blue, from 0 to 65535.
    Blue,
    /// The number 1, in place of a colour: asks for it.
    Query,
    /// A number: the state of a task's progress. 0 none, 1 a percentage, 2 an error, 3 unknown, 4
    /// paused.
    ProgressState,
    /// A number: the percentage of a task's progress.
    Percent,
    /// A text: the name of the application that writes prompts.
    Application,
    /// A number: the effect of a click in a prompt's input, in the order of `FinalTermClick`, from
    /// 0.
    Click,
    /// A number: the prompt that begins, in the order of `FinalTermPromptKind`, from 0.
    PromptKind,
    /// A number: the status with which a command ended. It may be negative.
    Status,
    /// A text: the name of a profile, a pasteboard, a variable or a file.
    Name,
    /// A flag: whether the line of the cursor is highlighted.
    Highlighted,
    /// A number: the height of a cell, in tenths of a pixel.
    CellHeight,
    /// A number: the width of a cell, in tenths of a pixel.
    CellWidth,
    /// A number: the number of the display's pixels in a pixel, in tenths.
    Scale,
    /// A size: the size of a file in bytes.
    Size,
    /// A number: the width at which a file is shown, in cells. It may be negative.
    WidthCells,
    /// A number: the same width in pixels.
    WidthPixels,
    /// A number: the same width as a percentage of the window.
    WidthPercent,
    /// A number: the height at which a file is shown, in cells. It may be negative.
    HeightCells,
    /// A number: the same height in pixels.
    HeightPixels,
    /// A number: the same height as a percentage of the window.
    HeightPercent,
    /// A flag: whether a file's width and height keep their ratio.
    PreserveAspectRatio,
    /// A flag: whether a file is shown. If not, it is stored.
    Inline,
    /// A flag: whether the cursor stays at its cell.
    DoNotMoveCursor,
    /// A text: the content of a file. It need not be UTF-8.
    Content,
    /// A number: a version of Unicode.
    Version,
    /// A text: the label of a version that is kept or brought back.
    Label,
    /// A number: the medium of an image, in the order of `KittyImageData`, from 0. Its `Content` is
    /// the payload as it came, bytes, the path of a file, that of a temporary one, or the name of a
    /// shared memory object.
    Medium,
    /// A number: the number of bytes of a file or an object that are the image.
    DataSize,
    /// A number: the number of bytes before them.
    DataOffset,
    /// A number: the format of an image's pixels. 24 RGB, 32 RGBA, 100 a PNG file.
    Format,
    /// A number: the width of an image in pixels.
    PixelWidth,
    /// A number: its height in pixels.
    PixelHeight,
    /// A number: the id of an image.
    ImageId,
    /// A number: the number of an image, in place of an id.
    ImageNumber,
    /// A number: the compression of an image's pixels. 0 none, 1 deflate.
    Compression,
    /// A flag: whether more of an image follows in further commands.
    MoreDataFollows,
    /// A number: a left edge in pixels, or a column from 1 for deleted placements.
    X,
    /// A number: a top edge in pixels, or a row from 1 for deleted placements.
    Y,
    /// A number: the width of the part that is shown or put over others, in pixels.
    Width,
    /// A number: its height in pixels.
    Height,
    /// A number: the distance of an image from the left edge of the first cell, in pixels.
    XOffset,
    /// A number: the distance from its top edge, in pixels.
    YOffset,
    /// A number: the number of columns that an image is scaled to.
    Columns,
    /// A number: the number of rows.
    Rows,
    /// A number: the id of a placement.
    PlacementId,
    /// A number: the order of an image above and below others. It may be negative.
    ZIndex,
    /// A flag: whether placeholder characters show an image.
    UnicodePlaceholder,
    /// A number: the frame whose pixels a new one begins with, from 1.
    BaseFrame,
    /// A number: the frame that is edited, from 1.
    FrameNumber,
    /// A number: the time that a frame is shown, in milliseconds.
    Duration,
    /// A number: the way pixels are put over others. 0 blended, 1 in their place.
    CompositionMode,
    /// A number: the colour of a frame's background, as red, green, blue and alpha of 8 bits each,
    /// red the highest.
    BackgroundPixel,
    /// A number: the frame that is changed, from 1.
    TargetFrame,
    /// A number: the frame whose pixels are taken, from 1.
    SourceFrame,
    /// A number: the left edge of the part that is taken, in pixels.
    SourceX,
    /// A number: its top edge in pixels.
    SourceY,
    /// A flag: whether the data of an image is deleted too.
    DeletesData,
    /// A number: the first of the ids of images that are deleted.
    FirstImageId,
    /// A number: the last of these ids.
    LastImageId,
    /// A number: what the terminal reports of a command. 0 successes and errors, 1 errors alone, 2
    /// nothing.
    Verbosity,
}

impl FieldName {
    /// Returns its number: its place in this order, from 0.
    pub fn number(self) -> u32
        ensures { result ≡ name_number self }
    {
        self as u32
    }
}
