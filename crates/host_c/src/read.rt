// What `host::read` has, for C.
ghost use Rattle.std.specs.Prelude.{◌≡◌};
ghost use Rattle.header.specs.Header.{header_answer};
ghost use Rattle.probe.specs.RecordStart.{record_start};
ghost use Rattle.start.specs.Start.{start_answer};
ghost use Rattle.iter.specs.Step.{plain_answer, prefix_answer};
ghost use Rattle.walker.specs.Walk.{walk_answer};
ghost use Rattle.checks.specs.Check.{check_answer};
ghost use Rattle.ask.specs.Ask.{ask_answer};
ghost use Rattle.find.specs.Lookup.{lookup_answer};
ghost use Rattle.find.specs.PrefixStart.{prefix_start_answer};
ghost use Rattle.loose.specs.Loose.{loose_answer};
ghost use Rattle.reply_file.specs.Head.{header_reply, name_number};
ghost use Rattle.reply_file.specs.Walk.{start_reply, step_reply, walk_reply};
ghost use Rattle.reply_file.specs.Verdict.{check_reply};
ghost use Rattle.reply_lookup.specs.Lookup.{lookup_reply};
ghost use Rattle.reply_lookup.specs.Prefix.{prefix_reply};
ghost use Rattle.reply_lookup.specs.Asked.{ask_reply};
ghost use Rattle.reply_loose.specs.Loose.{loose_reply};

use reply_file::head::HeaderReply;
use reply_file::verdict::CheckReply;
use reply_file::walk::{StartReply, StepReply};
use reply_lookup::asked::AskReply;
use reply_lookup::lookup::LookupReply;
use reply_lookup::prefix::PrefixReply;
use reply_loose::LooseReply;

#[unsafe(no_mangle)]
pub extern "C" fn packed_refs_header(file: &[u8]) -> HeaderReply
    ensures { result ≡ header_reply (header_answer file.now) }
{
    host::read::packed_refs_header(file)
}

// The number alone: 0 for a valid name, 3 for another, 17.
#[unsafe(no_mangle)]
pub extern "C" fn packed_refs_name(name: &[u8]) -> u32
    ensures { result ≡ name_number name.now }
{
    host::read::packed_refs_name(name)
}

#[unsafe(no_mangle)]
pub extern "C" fn packed_refs_start(kind: u32, file: &[u8]) -> StartReply
    ensures { result ≡ start_reply (start_answer kind file.now) }
{
    host::read::packed_refs_start(kind, file)
}

// The plain step: an error's line is counted in the bytes.
#[unsafe(no_mangle)]
pub extern "C" fn packed_refs_step(kind: u32, bytes: &[u8], place: usize) -> StepReply
    ensures { result ≡ step_reply kind place (plain_answer kind bytes.now place) }
{
    host::read::packed_refs_step(kind, bytes, place)
}

// The step that is given the line number of its place, and hands on the next.
#[unsafe(no_mangle)]
pub extern "C" fn packed_refs_walk(kind: u32, bytes: &[u8], place: usize, line: u64) -> StepReply
    ensures { result ≡ walk_reply kind place (walk_answer kind bytes.now place line) }
{
    host::read::packed_refs_walk(kind, bytes, place, line)
}

// The step with a prefix: an error has no line number.
#[unsafe(no_mangle)]
pub extern "C" fn packed_refs_step_prefix(
    kind: u32,
    bytes: &[u8],
    prefix: &[u8],
    place: usize,
) -> StepReply
    ensures { result ≡ step_reply kind place (prefix_answer kind prefix.now bytes.now place) }
{
    host::read::packed_refs_step_prefix(kind, bytes, prefix, place)
}

#[unsafe(no_mangle)]
pub extern "C" fn packed_refs_check(kind: u32, file: &[u8]) -> CheckReply
    ensures { result ≡ check_reply file.now (check_answer kind file.now) }
{
    host::read::packed_refs_check(kind, file)
}

// The start of the record that a place lies in. The place alone: there is no number, so 17 is not asked, and bytes of any size are taken.
#[unsafe(no_mangle)]
pub extern "C" fn packed_refs_record_start(bytes: &[u8], place: usize) -> usize
    ensures { result ≡ record_start bytes.now place }
{
    host::read::packed_refs_record_start(bytes, place)
}

#[unsafe(no_mangle)]
pub extern "C" fn packed_refs_lookup(kind: u32, body: &[u8], name: &[u8]) -> LookupReply
    ensures { result ≡ lookup_reply kind (lookup_answer kind body.now name.now) }
{
    host::read::packed_refs_lookup(kind, body, name)
}

#[unsafe(no_mangle)]
pub extern "C" fn packed_refs_prefix(kind: u32, body: &[u8], prefix: &[u8]) -> PrefixReply
    ensures { result ≡ prefix_reply (prefix_start_answer kind body.now prefix.now) }
{
    host::read::packed_refs_prefix(kind, body, prefix)
}

#[unsafe(no_mangle)]
pub extern "C" fn packed_refs_ask(kind: u32, file: &[u8], name: &[u8]) -> AskReply
    ensures { result ≡ ask_reply kind file.now (ask_answer kind file.now name.now) }
{
    host::read::packed_refs_ask(kind, file, name)
}

#[unsafe(no_mangle)]
pub extern "C" fn packed_refs_loose(kind: u32, content: &[u8]) -> LooseReply
    ensures { result ≡ loose_reply (loose_answer kind content.now) }
{
    host::read::packed_refs_loose(kind, content)
}
