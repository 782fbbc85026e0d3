//! What becomes of each datagram on a simulated link.

ghost use Rattle.std.specs.Prelude.{◌≡◌, ◌+◌, ◌<◌};
ghost use Rattle.std.specs.List.{slice_get};
ghost use Rattle.lossy_network.specs.Fates.{fate_at, fate_of_bits, fate_of_character, fate_of_letter};
ghost use Rattle.lossy_network.specs.Inside.{IsDrawn};

use board_specs::Fates;
use rand_core::utils::NextWord;
use rand_pcg::Lcg64Xsh32;

/// The stream of the generator of a noise (profile).
const NOISE_STREAM: u64 = 54;

/// What becomes of one datagram (profile).
#[derive(Clone, Copy, PartialEq, Eq)]
pub enum DatagramFate {
    /// It goes to the back of the queue.
    Delivered,
    /// It is never heard.
    Lost,
    /// It goes to the back of the queue twice.
    Repeated,
    /// It goes to the back of the queue after so many further datagrams: 1 to 9.
    Delayed(u8),
}

/// The generator of the random words of fates: that of a noise, or any one for a text.
pub(crate) fn noise_generator(fates: &Fates) -> Lcg64Xsh32
    ensures { IsDrawn fates.now 0 result }
{
    match fates {
        Fates::Text(_) => Lcg64Xsh32::new(0, NOISE_STREAM),
        Fates::Noise(noise) => Lcg64Xsh32::new(*noise, NOISE_STREAM),
    }
}

/// The fate of the datagram at a place of the air, from 0. A noise draws one word for each datagram.
pub(crate) fn next_fate(fates: &Fates, noise: &mut Lcg64Xsh32, place: usize) -> DatagramFate
    requires { IsDrawn fates.now place noise.old }
    ensures fate { result ≡ fate_at fates.now place }
    ensures drawn { IsDrawn fates.now (place + 1) noise.new }
{
    match fates {
        Fates::Text(text) => fate_of_letter(text.as_slice(), place),
        Fates::Noise(_) => fate_of_bits(noise.next_word() % 16),
    }
}

/// The fate that the character at a place of a text spells. Past its end each datagram is delivered.
fn fate_of_letter(text: &[u8], place: usize) -> DatagramFate
    ensures { result ≡ fate_of_letter (slice_get text.now place) }
{
    if place < text.len() {
        fate_of_character(text[place])
    } else {
        DatagramFate::Delivered
    }
}

/// The fate that a character spells.
fn fate_of_character(character: u8) -> DatagramFate
    ensures { result ≡ fate_of_character character }
{
    match character {
        b'l' => DatagramFate::Lost,
        b'r' => DatagramFate::Repeated,
        b'1'..=b'9' => DatagramFate::Delayed(character - b'0'),
        _ => DatagramFate::Delivered,
    }
}

/// The fate that the last four bits of a random word draw.
fn fate_of_bits(bits: u32) -> DatagramFate
    requires { bits < 16 }
    ensures { result ≡ fate_of_bits bits }
{
    match bits {
        0..=9 => DatagramFate::Delivered,
        10 | 11 => DatagramFate::Lost,
        12 | 13 => DatagramFate::Repeated,
        14 => DatagramFate::Delayed(2),
        _ => DatagramFate::Delayed(5),
    }
}
