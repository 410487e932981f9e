// The lines of a packed file as they are written: its header, a record's line and the line of a peeled id. Each writer puts its line at a place, as far
// as there is room, and gives the place behind it.
#![tactic(auto)]

ghost use Rattle.std.specs.Prelude.{◌≡◌, length};
ghost use Rattle.hex_digits.specs.Hex.{hex_text};
ghost use Rattle.put.specs.Put.{over, place_behind};
ghost use Rattle.lines.specs.Lines.{header_line, record_line, peeled_line};

// The header that every new file gets: `# pack-refs with: peeled fully-peeled sorted ` and LF.
pub fn header() -> [u8; 46]
    ensures { result ≡ header_line }
{
    *b"# pack-refs with: peeled fully-peeled sorted \n"
}

// The id in digits, a space, the name and LF.
pub fn put_record(out: &mut [u8], at: usize, id: &[u8], name: &[u8]) -> usize
    ensures { (out.new ≡ over out.old at (record_line (hex_text id.now) name.now))
        × (result ≡ place_behind at (length (record_line (hex_text id.now) name.now))) }
{
    let space = put::hex(out, at, id);
    let from = put::byte(out, space, b' ');
    let behind_name = put::bytes(out, from, name);
    put::byte(out, behind_name, b'\n')
}

// `^`, the peeled id in digits and LF.
pub fn put_peeled(out: &mut [u8], at: usize, id: &[u8]) -> usize
    ensures { (out.new ≡ over out.old at (peeled_line (hex_text id.now)))
        × (result ≡ place_behind at (length (peeled_line (hex_text id.now)))) }
{
    let from = put::byte(out, at, b'^');
    let behind_id = put::hex(out, from, id);
    put::byte(out, behind_id, b'\n')
}
