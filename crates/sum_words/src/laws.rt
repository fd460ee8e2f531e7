//! The laws of plain words and of arguments. Each is the contract of a function that does nothing.
ghost use Rattle.digest_kinds.specs.Bytes.{ByteString};
ghost use Rattle.std.specs.List.{AllPass};
ghost use Rattle.std.specs.Prelude.{◌≡◌, not, List, ◌∷◌, ◌++◌, map, codes};
ghost use Rattle.sum_words.specs.{Arguments.FitsArguments, declared.tool.Tool.Tool};
ghost use Rattle.sum_words.specs.parsing.Items.{ItemValue, NextWord, is_option_word, items_from};

use crate::arguments::Arguments;

/// Some list of arguments agrees with what the calls for them gave. If they are in memory, only that list does.
pub fn some_list_agrees<G: Arguments>(arguments: &G)
    ensures list { (all : List ByteString) × FitsArguments (G.state arguments.now) all }
{}

/// A word is plain if it is `-` or doesn't begin with a dash. The plain words at the front are operands, in order,
/// whatever follows them. After a `--` that ends the options, every word is an operand.
#[tactic(auto, using(crate::proofs::PlainWordLemmas::plain_words))]
pub fn plain_words_are_operands()
    ensures plain { (tool : Tool) (words more : List ByteString) →
        AllPass (λ word. not (is_option_word word)) words →
        items_from tool (words ++ more) NextWord.a_word
        ≡ map ItemValue.operand words ++ items_from tool more NextWord.a_word }
    ensures after_dashes { (tool : Tool) (words : List ByteString) →
        items_from tool (codes "--" ∷ words) NextWord.a_word ≡ map ItemValue.operand words }
{}
