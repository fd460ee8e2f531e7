//! What follows from the law of the texts of kinds.
ghost use Rattle.std.specs.Prelude.{◌≡◌, Ok};

use digest_kinds::{Kind, UnknownKind};

/// Returns the kind from the text that is written for it.
pub fn parsed_back(kind: Kind) -> Result<Kind, UnknownKind>
    ensures { result ≡ Ok kind }
{
    digest_kinds::laws::texts_name_kinds();
    kind.text_into(&mut [0; 11]).parse()
}
