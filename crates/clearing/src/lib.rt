// A lent run of words, cleared.

#![tactic(auto)]

ghost use Rattle.std.specs.Prelude.{◌≡◌, length};
ghost use Rattle.script.specs.Generated.{zeros};

// Puts a zero into every word.
pub fn clear(words: &mut [i32])
    ensures { words.new ≡ zeros (length words.old) }
{
    words.fill(0);
}
