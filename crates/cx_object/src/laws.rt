ghost use Rattle.std.specs.Prelude.{◌≡◌, ℕ, ◌<◌, List, slice_index, Ok};
ghost use Rattle.cx_code.specs.declared.object.Object.{Object};
ghost use Rattle.cx_code.specs.ObjectSpelling.{object_spelling};
ghost use Rattle.cx_code.specs.ObjectStorable.{IsStorableObject};
ghost use Rattle.cx_object.specs.Reading.{read_object};
ghost use Rattle.cx_object.specs.Words.{ObjectOfWords};

/// Reading what spells an object that can be stored gives that object. Takes no memory. (This project's own.)
pub fn what_is_spelled_is_read()
    ensures { (object : Object) → IsStorableObject object → ObjectOfWords object → read_object (object_spelling object) ≡ Ok object }
{}

/// An object that is read can be stored, and the bytes are those that spell it. Takes no memory. (This project's own.)
pub fn what_is_read_is_spelled()
    ensures { (bytes : List ℕ) (object : Object) → ((i : ℕ) → slice_index bytes i < 256) → read_object bytes ≡ Ok object → IsStorableObject object × ObjectOfWords object × (bytes ≡ object_spelling object) }
{}

/// Bytes spell one object at most. Takes no memory. (This project's own.)
pub fn bytes_spell_one_object()
    ensures { (object other : Object) → IsStorableObject object → ObjectOfWords object → IsStorableObject other → ObjectOfWords other → object_spelling object ≡ object_spelling other → object ≡ other }
{}
