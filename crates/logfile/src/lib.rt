// Floor 3: the plant's file.
#![tactic(auto, using(crate::proofs::Walk::file), unfolding(words::specs::Refusals::first_no, words::specs::Refusals::log_no, words::specs::Answers::accepted, words::specs::PlantFile::field_of, words::specs::PlantFile::file_no, words::specs::PlantFile::symbols, crate::specs::Place::part_place))]

ghost use Rattle.std.specs.Prelude.{◌≡◌, ltb, IfOk};
ghost use Rattle.std.specs.List.{list_any};
ghost use Rattle.words.specs.PlantFile as PlantFile;
ghost use Rattle.refusals.specs.Numbers.{number};
ghost use Rattle.logfile.specs.Place.{part_place};

use refusals::Refusal;

// The bytes of the longest file; and room for one more: a longer input fills it, and is a file of a wrong size.
pub const LONGEST_FILE: usize = 3 + words::LONGEST;

pub const FILE_ROOM: usize = LONGEST_FILE + 1;

// Whether one of the symbols is none of the plant's.
fn unknown(symbols: &[u8]) -> bool
    ensures { result ≡ list_any (λ s. ltb PlantFile.ceiling_symbol s) symbols.now }
{
    symbols.iter().any(|s| words::CEILING < *s)
}

// The symbols, as the part of the file after its third byte. Refused by the first that applies: no header, the version, an empty or a long log by the length
// field, a wrong size, a symbol that is none.
pub fn read(f: &[u8]) -> Result<&[u8], Refusal>
    ensures refusal { number result ≡ PlantFile.file_no f.now }
    ensures part { IfOk result (λ s. s.now ≡ PlantFile.symbols f.now) }
    ensures place { IfOk result (λ s. s.ref_ptr ≡ part_place f.now f.entry.ref_ptr) }
{
    let [version, high, low, symbols @ ..] = f else {
        return Err(Refusal::File);
    };
    if *version != 1 {
        return Err(Refusal::Version);
    }
    let n = usize::from(u16::from_be_bytes([*high, *low]));
    refusals::log(n)?;
    if symbols.len() != n {
        return Err(Refusal::File);
    }
    if unknown(symbols) {
        return Err(Refusal::Symbol);
    }
    Ok(symbols)
}

// The number of a file: 0, or that of its refusal.
pub fn number(f: &[u8]) -> u8
    ensures { result ≡ PlantFile.file_no f.now }
{
    refusals::number(read(f))
}

// The symbols; the empty part where the file is refused.
pub fn symbols(f: &[u8]) -> &[u8]
    ensures part { result.now ≡ PlantFile.symbols f.now }
    ensures place { result.ref_ptr ≡ part_place f.now f.entry.ref_ptr }
{
    read(f).unwrap_or(&f[..0])
}
