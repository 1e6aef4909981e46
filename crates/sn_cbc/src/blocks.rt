// The blocks of a text.
ghost use Rattle.std.specs.Prelude.{◌≡◌, ◌≤◌, ◌+◌, ◌++◌, length, take, drop};

// The 16 bytes from place `at` on.
#[inline(always)]
pub fn block_at(text: &[u8], at: usize) -> &[u8; 16]
    requires { at + 16 ≤ length text.now }
    ensures { result.now ≡ take 16 (drop at text.now) }
{
    match text[at..at + 16].as_array::<16>() {
        Some(block) => block,
        None => unreachable!(),
    }
}

// Puts a block in place of 16 bytes.
#[inline(always)]
fn write(bytes: &mut [u8], block: [u8; 16])
    requires { length bytes.old ≡ 16 }
    ensures { bytes.new ≡ block }
{
    match bytes.as_mut_array::<16>() {
        Some(place) => *place = block,
        None => unreachable!(),
    }
}

// Puts a block in place of the 16 bytes from place `at` on.
#[inline(always)]
pub fn write_block(text: &mut [u8], at: usize, block: [u8; 16])
    requires { at + 16 ≤ length text.old }
    ensures { text.new ≡ take at text.old ++ (block ++ drop (at + 16) text.old) }
{
    write(&mut text[at..at + 16], block);
}
