// Document 02, request 1: the aspect to the passenger screens.
ghost use Rattle.std.specs.Prelude.{◌≡◌, length};
ghost use Rattle.rules.specs.Screen.{after_writing, message_of, received, written_of};

use rules::{Message, Received, Station, Written};

// What the information desk is told of a station with this number.
#[unsafe(no_mangle)]
pub extern "C" fn degvuurel_message_of(number: u16, station: Station) -> Message
    ensures { result ≡ message_of number station }
{
    screen::message_of(number, station)
}

// Writes a message's text at the start of buffer, and touches no byte past it. Refused by 16 or 12,
// nothing is written and the length is 0.
#[unsafe(no_mangle)]
pub extern "C" fn degvuurel_write_message(message: Message, buffer: &mut [u8]) -> Written
    ensures value { result ≡ written_of message (length buffer.old) }
    ensures buffer_after { buffer.new ≡ after_writing message buffer.old }
{
    screen::write(message, buffer).into()
}

// The message that a text holds. Refused by 15 or 16, it is zeros and no tracks.
#[unsafe(no_mangle)]
pub extern "C" fn degvuurel_read_message(text: &[u8]) -> Received
    ensures { result ≡ received text.now }
{
    screen::read(text).into()
}
