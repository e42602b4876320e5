// What a line of a script asks for.
ghost use Rattle.std.specs.Prelude.{◌≡◌, true, false, MatchOption};
ghost use Rattle.solo.specs.Number.{joins, joined, number_of};

use ledger::Note;

#[derive(Clone, Copy, Debug, PartialEq, Eq)]
pub enum Command {
    // the next order comes in
    Order,
    // to look, or to write, for the order at a place
    Look(u32),
    Write(u32),
    // a house told its values for the order at a place
    Told { from: u8, place: u32, values: Note },
    Ready,
    // to do so much of what is ready
    Go(u32),
    Show(u16),
}

impl Command {
    // The command of a line, whose words stand one space apart; none where it is not understood: why is said to nobody, so no error.
    // Words are bytes, as the line is: to see first that they are text cost a line of a few words more than reading it.
    pub fn parse(line: &[u8]) -> Option<Command> {
        let mut words = line.split(|byte| *byte == b' ');
        let command = match words.next()? {
            b"order" => Command::Order,
            b"look" => Command::Look(number(words.next()?)?),
            b"write" => Command::Write(number(words.next()?)?),
            b"told" => Command::Told {
                from: u8::try_from(number(words.next()?)?).ok()?,
                place: number(words.next()?)?,
                // sixteen at most
                values: words
                    .by_ref()
                    .take(16)
                    .try_fold(Note::empty(), |mut values, word| {
                        values.push(number(word)?);
                        Some(values)
                    })?,
            },
            b"ready" => Command::Ready,
            b"go" => Command::Go(number(words.next()?)?),
            b"show" => Command::Show(u16::try_from(number(words.next()?)?).ok()?),
            _ => return None,
        };
        match words.next() {
            None => Some(command),
            Some(_) => None,
        }
    }
}

// The number that a word is: digits alone, and below 4,294,967,296. The library reads one from a text alone, and a sign too.
pub fn number(word: &[u8]) -> Option<u32>
    ensures { result ≡ number_of word.now }
{
    if word.is_empty() {
        return None;
    }
    let mut number = 0;
    for byte in word {
        number = join(number, *byte)?;
    }
    Some(number)
}

// A number with one digit more behind it.
fn join(number: u32, byte: u8) -> Option<u32>
    ensures { MatchOption result (joins number byte ≡ false) (λ n. (joins number byte ≡ true) × (n ≡ joined number byte)) }
{
    if byte < b'0' || byte > b'9' {
        return None;
    }
    u32::try_from(u64::from(number) * 10 + u64::from(byte - b'0')).ok()
}
