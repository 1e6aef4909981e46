// The password of an input.
ghost use Rattle.std.specs.Prelude.{◌≡◌};
ghost use Rattle.sn_cli.specs.DeviceCalls.{first_line};

/// The text before its first line feed, or all of it where it has none.
pub fn first_line(text: &str) -> &str
    ensures { result.now ≡ first_line text.now }
{
    match text.split_once('\n') {
        Some((line, _)) => line,
        None => text,
    }
}
