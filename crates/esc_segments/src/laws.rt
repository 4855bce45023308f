//! The items that the iterator gives, from the first call to the last.
#![tactic(auto)]

ghost use Rattle.std.specs.Prelude.{◌≡◌, ◌++◌, ◌∷◌, List};
ghost use Rattle.std.specs.Iterator.{Drains};
ghost use Rattle.esc_frame.specs.Segments.{Segment as Shape, IsCut};
ghost use Rattle.esc_segments.specs.declared.item.Segment.{Segment as Item};
ghost use Rattle.esc_segments.specs.declared.iter.Segments.{Segments};
ghost use Rattle.esc_segments.specs.Items.{GivesFirst, AreItems, left_bytes, item_bytes};

/// The items of an iterator are the segments of the cut of its bytes: their kinds, their bytes, and
/// whether each is finished.
pub fn items_are_the_cut()
    ensures { (s : Segments) (xs : List Item) (gs : List Shape) → Drains GivesFirst s xs
        → IsCut (left_bytes s) gs → AreItems xs gs }
{}

/// Each item lies at the place of its bytes in the input: the bytes of the items before it, its
/// own, and those of the items after it are the bytes of the iterator.
pub fn items_lie_in_place()
    ensures { (s : Segments) (before : List Item) (x : Item) (after : List Item)
        → Drains GivesFirst s (before ++ x ∷ after)
        → left_bytes s ≡ item_bytes before ++ (x.bytes.now ++ item_bytes after) }
{
    esc_frame::laws::has_cut();
}
