//! Text lines.
ghost use Rattle.std.specs.Prelude.{◌≡◌};
ghost use Rattle.std.specs.Str.Lines.{strip_carriage_return};

/// Removes one carriage return at the end of the line, if there is one.
pub fn without_return(line: &[u8]) -> &[u8]
    ensures { result.now ≡ strip_carriage_return line.now }
{
    let count = line.len();
    if count > 0 && line[count - 1] == b'\r' {
        return &line[..count - 1];
    }
    line
}
