// The stack of frames, a word to each: its number, and up to two rows of parts that stand before it (of an assignment the variable).
// Places past the end are not written, and read as the bottom of the stack, which waits for a script. Numbers of frames are below
// 64 and rows below 4,096, so that no remainder taken here changes one: it stands in for a bound that callers would have to show.

ghost use Rattle.std.specs.Prelude.{◌≡◌};
ghost use Rattle.parser.specs.Machine.{frame as Machine·frame, first_part, second_part, top_frame, put, top_after};

pub fn frame(number: usize, first: usize, second: usize) -> u32
    ensures { result ≡ Machine·frame number first second }
{
    (number % 64 + 64 * (first % 4096) + 262144 * (second % 4096)) as u32
}

pub fn first_part(frame: usize) -> usize
    ensures { result ≡ first_part frame }
{
    frame / 64 % 4096
}

pub fn second_part(frame: usize) -> usize
    ensures { result ≡ second_part frame }
{
    frame / 262144 % 4096
}

// The frame on top.
pub fn top_frame(stack: &[u32], top: usize) -> usize
    ensures { result ≡ top_frame stack.now top }
{
    if top == 0 {
        return 0;
    }
    stack.get(top - 1).copied().unwrap_or(0) as usize
}

// Puts a frame at a place; gives the place past it.
pub fn put(stack: &mut [u32], at: usize, frame: u32) -> usize
    ensures top { result ≡ top_after stack.old at }
    ensures stack { stack.new ≡ put stack.old at frame }
{
    if at < stack.len() {
        stack[at] = frame;
        at + 1
    } else {
        at
    }
}
