//! Laws of tags and of the texts of kinds. Each is the contract of a function that does nothing.

ghost use Rattle.digest_kinds.specs.Algo.{Algo, BeginsWithTag, has_len, tag_of};
ghost use Rattle.digest_kinds.specs.{Kind.KindValue, KindText.NamesKind, KindText.kind_text};
ghost use Rattle.std.specs.Prelude.{◌≡◌, IsTrue};

/// No algorithm's tag is a prefix of another's.
pub fn tags_apart()
    ensures tags { (a b : Algo) → BeginsWithTag (tag_of b) a → a ≡ b }
{}

/// The text of each kind that has digests names that kind.
pub fn texts_name_kinds()
    ensures text { (kind : KindValue) → IsTrue (has_len kind.algo kind.len)
        → NamesKind (kind_text kind) kind }
{}
