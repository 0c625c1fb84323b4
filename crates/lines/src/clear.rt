// Words set to 0: an index that knows no type, and work words as they are handed back.
#![tactic(auto, unfolding(definition::specs::Answers::cleared))]

ghost use Rattle.std.specs.Prelude.{◌≡◌};
ghost use Rattle.definition.specs.Answers.{cleared};

pub fn clear(words: &mut [u32])
    ensures { words.new ≡ cleared words.old }
{
    words.fill(0);
}
