//! What the law of plain words says of a command line.
ghost use Rattle.std.specs.List.{AllPass};
ghost use Rattle.std.specs.Prelude.{◌≡◌, not, List, ◌∷◌, ◌++◌, map, codes};
ghost use Rattle.digest_kinds.specs.Bytes.{ByteString};
ghost use Rattle.sum_words.specs.declared.tool.Tool.{Tool};
ghost use Rattle.sum_words.specs.parsing.Items.{operand, a_word, is_option_word, items_from};

use sum_words::laws::plain_words_are_operands;

// `md5sum NAMES -- MORE`: if no name before `--` begins with a dash, but for `-`, all of both are operands, in order.
fn names_are_operands()
    ensures { (t : Tool) (names more : List ByteString) →
        AllPass (λ name. not (is_option_word name)) names →
        items_from t (names ++ codes "--" ∷ more) a_word ≡ map operand (names ++ more) }
{
    plain_words_are_operands();
}
