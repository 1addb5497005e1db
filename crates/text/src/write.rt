// Writing a recording as a text, with a new line where a word was taken.
ghost use Rattle.std.specs.Prelude.{◌+◌, ◌<◌, ◌≡◌, length, drop};
ghost use Rattle.text.specs.Text.{cycles_fit, places_fit, line_end, line_of, lines_from, text_of, Put};
ghost use Rattle.text.specs.Refusals.{done, refusal_number};
ghost use Rattle.text.specs.Write.{recording_refusal, write_refusal, lead_of, written_of, Lead, Lines, WriteText};

use crate::characters;
use crate::characters::LINE_FEED;
use crate::put::put_mapped;
use crate::refusals::{MOST_CYCLES, Refusal};

// A cycle is at most this.
const HIGHEST_CYCLE: u8 = 15;

// Cycles, and the places among them where words were taken.
#[derive(Clone, Copy)]
struct Recording<'a> {
    cycles: &'a [u8],
    places: &'a [u32],
}

// Writes a line at byte `at` of the text; returns where the next one begins.
fn put_line(line: &[u8], text: &mut [u8], at: usize) -> usize
    requires { at + length line.now < length text.old }
    ensures { Put text.old at (line_of line.now) result text.new }
{
    let end = put_mapped(line, characters::digit_of, text, at);
    text[end] = LINE_FEED;
    end + 1
}

impl Recording<'_> {
    // Whether every cycle is at most 15, so that it has a digit. Not one function with device_record's `inputs_fit`: neither
    // crate sees the other.
    fn cycles_fit(&self) -> bool
        ensures { result ≡ cycles_fit self.now.cycles.now }
    {
        // Not `all`: with no early exit the loop takes many bytes at once.
        self.cycles
            .iter()
            .fold(true, |all, cycle| all & (*cycle <= HIGHEST_CYCLE))
    }

    // Whether the places rise, and lie below the number of cycles.
    fn places_fit(&self) -> bool
        ensures { result ≡ places_fit 0 (length self.now.cycles.now) self.now.places.now }
    {
        let mut low: usize = 0;
        for place in self.places {
            let place = *place as usize;
            if place < low || self.cycles.len() <= place {
                return false;
            }
            low = place + 1;
        }
        true
    }

    // Refusals 13 to 15.
    #[tactic(auto, unfolding(crate::specs::Write::recording_refusal))]
    fn recording_refusal(&self) -> Result<(), Refusal>
        ensures { refusal_number result ≡ recording_refusal self.now.cycles.now self.now.places.now }
    {
        if MOST_CYCLES < self.cycles.len() {
            return Err(Refusal::TooManyCycles);
        }
        if !self.cycles_fit() {
            return Err(Refusal::BadCycle);
        }
        if !self.places_fit() {
            return Err(Refusal::BadPlaces);
        }
        Ok(())
    }

    // Where the line before place k ends: at that place, or after the last cycle.
    fn line_end(&self, k: usize) -> usize
        ensures { result ≡ line_end (length self.now.cycles.now) (drop k self.now.places.now) }
    {
        self.places
            .get(k)
            .map_or(self.cycles.len(), |place| *place as usize)
    }

    // Refusals 13 to 15, then 16.
    fn write_refusal(&self, text: &[u8]) -> Result<(), Refusal>
        ensures { refusal_number result ≡ write_refusal self.now.cycles.now self.now.places.now text.now }
    {
        self.recording_refusal()?;
        let lines = self.places.len() + (0 < self.line_end(0)) as usize;
        if text.len() < self.cycles.len() + lines {
            return Err(Refusal::TooShort);
        }
        Ok(())
    }

    // Writes the cycles before the first place as a line, if there are any; returns where the next line begins.
    fn put_lead(&self, end: usize, text: &mut [u8]) -> usize
        requires { Lead self.now.cycles.now end text.old }
        ensures { Put text.old 0 (lead_of self.now.cycles.now end) result text.new }
    {
        if 0 < end {
            put_line(&self.cycles[..end], text, 0)
        } else {
            0
        }
    }

    // Writes a line for each place, at byte `start` of the text; returns where they end.
    fn put_lines(&self, text: &mut [u8], start: usize) -> usize
        requires { Lines self.now.cycles.now self.now.places.now start text.old }
        ensures { Put text.old start (lines_from self.now.cycles.now self.now.places.now) result text.new }
    {
        let mut at = start;
        for (k, place) in self.places.iter().enumerate() {
            let end = self.line_end(k + 1);
            at = put_line(&self.cycles[*place as usize..end], text, at);
        }
        at
    }

    // Writes a text that fits into the buffer; returns its length.
    fn put_text(&self, text: &mut [u8]) -> usize
        requires { write_refusal self.now.cycles.now self.now.places.now text.old ≡ done }
        ensures { Put text.old 0 (text_of self.now.cycles.now self.now.places.now) result text.new }
    {
        let start = self.put_lead(self.line_end(0), text);
        self.put_lines(text, start)
    }
}

// Writes a recording as text. Each place starts a line; cycles before the first place are a line of their own, and so are all
// cycles if there is no place. Cycles and places are two parameters, as C gives them.
pub fn write_text(cycles: &[u8], places: &[u32], text: &mut [u8]) -> Result<usize, Refusal>
    ensures { WriteText cycles.now places.now text.old (written_of result) text.new }
{
    let recording = Recording { cycles, places };
    recording.write_refusal(text)?;
    Ok(recording.put_text(text))
}
