// The tokens of a text, taken one after the other.

ghost use Rattle.std.specs.Prelude.{◌≡◌};
ghost use Rattle.grammar.specs.Scanning.{scan};
ghost use Rattle.parser.specs.Machine.{start, start_state};
ghost use Rattle.script_reader.specs.Takes.{Takes};

use crate::{Fault, Refusal};
use parser::{State, take};
use scanner::{is_blank, token_at, tokens};

fn first_state() -> State
    ensures { result ≡ start_state }
{
    State {
        mode: parser::PART,
        sort: 0,
        number: 0,
        bodies: 0,
        rows: 0,
        top: 0,
        out: parser::NOWHERE,
        place: parser::NOWHERE,
    }
}

// The state after a text's last token, unless a byte begins none.
#[tactic(auto, using(scanner::specs::Progress::told_end))]
pub fn take_tokens(text: &[u8], stack: &mut [u32], words: &mut [i32]) -> Result<State, Refusal>
    ensures { Takes (scan text.now) (start stack.old words.old) result words.new }
{
    let mut s = first_state();
    let mut at: usize = 0;
    while at < text.len() {
        if is_blank(text[at]) {
            at += 1;
        } else {
            let token = token_at(text, at).ok_or(Refusal {
                fault: Fault::NoToken,
                place: at,
            })?;
            s = take(stack, words, s, token.kind, token.value, at);
            at = token.end;
        }
    }
    Ok(take(stack, words, s, tokens::END_OF_TEXT, 0, at))
}
