// The padding check as C sees it. A slice crosses as a pointer and a length in bytes. It calls the function of its name in `padding`, and states its
// clause again.
#![tactic(auto)]

ghost use Rattle.padding.specs.Interface.{AnswersBlock};

// How long the content of a block is: a block's bytes, four a cell, most significant first.
#[unsafe(no_mangle)]
pub extern "C" fn tinesage_unpadded_length(block: &[u8]) -> u32
    ensures { AnswersBlock block.now block.now result }
{
    padding::tinesage_unpadded_length(block)
}
