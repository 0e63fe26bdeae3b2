// The first and the last lines of a trace: before the first request, power-up; after the last one,
// how many requests were refused, and which pulses make no requests.
use crate::page::{Page, TraceEntry};
use agc_document::Bench;
use agc_phase::recover;
use agc_run::Scene;
use agc_session::{asks_nothing, line_name};
use agc_text::Buffer;
use agc_text::Field::{Number, Octal, Text};
use agc_word::Word;

/// Adds what is wrong with a group's two words, if anything is.
fn put_pair(buffer: &mut Buffer, group: u64, minus: Word, phase: Word) {
    let bits = phase.bits();
    if minus != phase.neg() {
        buffer.put(
            "          group {}: {} is not the complement of {}\n",
            &[Number(group), Octal(minus.bits()), Octal(bits)],
        );
    } else if bits > 127 {
        buffer.put(
            "          group {}: phase {} is above 127\n",
            &[Number(group), Number(u64::from(bits))],
        );
    }
}

/// Adds why power-up was a fresh start.
fn put_broken(buffer: &mut Buffer, words: &[Word; 12]) {
    buffer.text("        alarm 1107: no phase can be trusted, and nothing begins again\n");
    for group in 0..6usize {
        let (minus, phase) = (words[2 * group], words[2 * group + 1]);
        put_pair(buffer, group as u64 + 1, minus, phase);
    }
}

/// The reply to power-up with these phase words.
fn power_reply(words: &[Word; 12]) -> &'static str {
    if recover(words).is_some() {
        "restarted"
    } else {
        "alarm 1107"
    }
}

/// Adds the outcome of power-up with these phase words: the scene with which the first era begins.
pub(crate) fn put_power(page: &mut Page, words: &[Word; 12], scene: &Scene) {
    page.put(TraceEntry::Power(power_reply(words)), scene);
    if !page.table.is_text() {
        return;
    }
    if recover(words).is_none() {
        put_broken(&mut page.table.lines, words);
    }
    page.columns
        .put_phases(&mut page.table.lines, &scene.phases());
    page.table.lines.text("\n");
}

/// How many requests were refused, for each reason.
#[derive(Clone, Copy, Default)]
pub(crate) struct RefusalCounts {
    pub(crate) log_full: u64,
    pub(crate) spent: u64,
}

/// The plural ending for a count.
fn ending(count: u64) -> &'static str {
    if count == 1 { "" } else { "s" }
}

/// Adds how many requests the machine of a bench refused.
pub(crate) fn put_refused(buffer: &mut Buffer, refused: RefusalCounts, bench: &Bench) {
    let RefusalCounts { log_full, spent } = refused;
    if log_full > 0 {
        let limit = Number(u64::from(bench.limit().get()));
        let told = [Number(log_full), Text(ending(log_full)), limit];
        buffer.put("        {} request{} refused: log full (limit {})\n", &told);
    }
    if spent > 0 {
        let allowance = Number(bench.allowance());
        let told = [Number(spent), Text(ending(spent)), allowance];
        buffer.put(
            "        {} request{} refused: spent (allowance {}, all served)\n",
            &told,
        );
    }
}

/// Adds a line for each device of a bench that sends pulses which make no requests.
pub(crate) fn put_idle(buffer: &mut Buffer, bench: &Bench) {
    for device in bench.devices() {
        let (line, pulses) = *device;
        let pulses = u64::from(pulses);
        if pulses > 0 && asks_nothing(bench, line) {
            let told = [Number(pulses), Text(line_name(line)), Text(ending(pulses))];
            buffer.put("        {} {} pulse{} asked for nothing\n", &told);
        }
    }
}
