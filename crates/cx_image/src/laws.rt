ghost use Rattle.std.specs.Prelude.{◌≡◌, ℕ, ◌<◌, List, slice_index, Ok};
ghost use Rattle.cx_code.specs.declared.image.Image.{Image};
ghost use Rattle.cx_code.specs.Spelling.{image_spelling};
ghost use Rattle.cx_code.specs.Storable.{IsStorable};
ghost use Rattle.cx_image.specs.Reading.{read_image};
ghost use Rattle.cx_image.specs.Words.{ImageOfWords};
ghost use Rattle.cx_image.specs.Places.{ItemsStand};

/// Reading what spells an image that can be stored gives that image. Takes no memory. (This project's own.)
pub fn what_is_spelled_is_read()
    ensures { (image : Image) → IsStorable image → ImageOfWords image → read_image (image_spelling image) ≡ Ok image }
{}

/// An image that is read can be stored, and the bytes are those that spell it. Takes no memory. (This project's own.)
pub fn what_is_read_is_spelled()
    ensures { (bytes : List ℕ) (image : Image) → ((i : ℕ) → slice_index bytes i < 256) → read_image bytes ≡ Ok image → IsStorable image × ImageOfWords image × (bytes ≡ image_spelling image) }
{}

/// Bytes spell one image at most. Takes no memory. (This project's own.)
pub fn bytes_spell_one_image()
    ensures { (image other : Image) → IsStorable image → ImageOfWords image → IsStorable other → ImageOfWords other → image_spelling image ≡ image_spelling other → image ≡ other }
{}

/// Each instruction, count of instructions, region, dropper of a type and the fields `main` and handler of an image stand in
/// its bytes at the place that a broken rule is told with. Takes no memory. (This project's own.)
pub fn items_stand()
    ensures { ItemsStand }
{}
