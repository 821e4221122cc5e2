// The entries of `strokes` under C names. A log's length and a number of numbers may be over 32 bits, so they stand in a word lent beside the
// code; a chord stands in two.
ghost use Rattle.std.specs.Prelude.{length};
ghost use Rattle.chords.specs.Chords.{chord};
ghost use Rattle.strokes.specs.Entries.{add_of, added_of, read_of, read_into, chord_of};
ghost use Rattle.codes.specs.Batch.{AppendsTo};
ghost use Rattle.codes.specs.Log.{chord_refusal, chord_words};
ghost use Rattle.codes.specs.Words.{Told};

use codes::told;

pub fn loaf_log_add(
    room: &mut [u8],
    used: usize,
    tick: u32,
    keys: u32,
    window: u32,
    answer: &mut [u64],
) -> u64
    ensures { AppendsTo
        (add_of room.old used (chord tick keys) window)
        (added_of room.old used (chord tick keys) window)
        answer.old result room.new answer.new }
{
    told::appended(answer, strokes::add(room, used, tick, keys, window))
}

pub fn loaf_log_read(log: &[u8], out: &mut [u32], answer: &mut [u64]) -> u64
    ensures { AppendsTo
        (read_of log.now (length out.old))
        (read_into log.now out.old)
        answer.old result out.new answer.new }
{
    told::appended(answer, strokes::read(log, out))
}

pub fn loaf_log_chord(log: &[u8], n: usize, answer: &mut [u64]) -> u64
    ensures { Told 2
        (chord_refusal (chord_of log.now n)) (chord_words (chord_of log.now n))
        answer.old result answer.new }
{
    told::struck(answer, strokes::chord(log, n))
}
