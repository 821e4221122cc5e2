// The names of stroke logs.
ghost use Rattle.std.specs.Prelude.{length};
ghost use Rattle.chords.specs.Chords.{chord};
ghost use Rattle.strokes.specs.Entries.{add_of, added_of, read_of, read_into, chord_of};
ghost use Rattle.codes.specs.Batch.{AppendsTo};
ghost use Rattle.codes.specs.Log.{chord_refusal, chord_words};
ghost use Rattle.codes.specs.Words.{Told};

#[unsafe(no_mangle)]
pub extern "C" fn loaf_log_add(
    room: &mut [u8],
    used: usize,
    tick: u32,
    keys: u32,
    window: u32,
    answer: &mut [u64],
) -> u64
    ensures { AppendsTo
        (add_of room.old used (chord tick keys) window)
        (added_of room.old used (chord tick keys) window)
        answer.old result room.new answer.new }
{
    desk::logs::loaf_log_add(room, used, tick, keys, window, answer)
}

#[unsafe(no_mangle)]
pub extern "C" fn loaf_log_read(log: &[u8], out: &mut [u32], answer: &mut [u64]) -> u64
    ensures { AppendsTo
        (read_of log.now (length out.old))
        (read_into log.now out.old)
        answer.old result out.new answer.new }
{
    desk::logs::loaf_log_read(log, out, answer)
}

#[unsafe(no_mangle)]
pub extern "C" fn loaf_log_chord(log: &[u8], n: usize, answer: &mut [u64]) -> u64
    ensures { Told 2
        (chord_refusal (chord_of log.now n)) (chord_words (chord_of log.now n))
        answer.old result answer.new }
{
    desk::logs::loaf_log_chord(log, n, answer)
}
