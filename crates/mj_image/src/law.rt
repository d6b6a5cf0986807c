//! What the two directions of images have in common.

ghost use Rattle.std.specs.Prelude.{◌≡◌, ◌≤◌, ℕ, List, Some, Ok, length};
ghost use Rattle.mj_base.specs.Reading.{AreBytes};
ghost use Rattle.mj_base.specs.ObjectName.{object_text, IsObjectName};
ghost use Rattle.mj_base.specs.declared.object.ObjectName.{ObjectName};
ghost use Rattle.mj_store.specs.declared.held.HeldObject.{HeldObject};
ghost use Rattle.mj_image.specs.Naming.{object_named};
ghost use Rattle.mj_image.specs.Image.{image_bytes, most_bytes, IsImage};
ghost use Rattle.mj_image.specs.Whole.{image_of};

/// The text of a name names that object, and a text that names an object is its.
pub fn names_are_read_again()
    ensures again { (name : ObjectName) → IsObjectName name → object_named (object_text name) ≡ Some name }
    ensures takes { (text : List ℕ) (name : ObjectName) → object_named text ≡ Some name → (text ≡ object_text name) × IsObjectName name }
{}

/// An image's bytes are read as its objects.
pub fn image_is_read_again()
    ensures { (hs : List HeldObject) → IsImage hs → length (image_bytes hs) ≤ most_bytes → image_of (image_bytes hs) ≡ Ok hs }
{}

/// Bytes that are read as objects are their image.
pub fn image_read_is_spelled()
    ensures { (bytes : List ℕ) (hs : List HeldObject) → AreBytes bytes → image_of bytes ≡ Ok hs → (bytes ≡ image_bytes hs) × IsImage hs }
{}
