//! What clients send, and what they are sent: texts, with lengths and sums computed outside, where `|` stands for the
//! byte 01.
ghost use Rattle.std.specs.Prelude.{◌≤◌, vec_len, IfOk};

use std::alloc::{AllocError, Global};
use venue_model::LONGEST_MESSAGE;

/// Why a text gives no message: it has no byte, or too many, or memory was refused.
#[derive(Clone, Copy, Debug)]
pub struct NoMessage;

/// C1 buys 100 at 50.
pub const FIRST_BUY: &str = "8=FIX.4.4|9=102|35=D|49=C1|56=VENUE|34=2|52=20250102-09:30:00|11=1|\
    55=ABC|54=1|60=20250102-09:30:00|38=100|40=2|44=50|10=098|";

/// C1 sells 1 at 50.
pub const SELL_ONE: &str = "8=FIX.4.4|9=100|35=D|49=C1|56=VENUE|34=2|52=20250102-09:30:00|11=1|\
    55=ABC|54=2|60=20250102-09:30:00|38=1|40=2|44=50|10=001|";

/// C1 sells 1 at 50 again.
pub const SELL_TWO: &str = "8=FIX.4.4|9=100|35=D|49=C1|56=VENUE|34=3|52=20250102-09:30:00|11=2|\
    55=ABC|54=2|60=20250102-09:30:00|38=1|40=2|44=50|10=003|";

/// C1 sells 1 at 50 a third time.
pub const SELL_THREE: &str = "8=FIX.4.4|9=100|35=D|49=C1|56=VENUE|34=4|52=20250102-09:30:00|11=3|\
    55=ABC|54=2|60=20250102-09:30:00|38=1|40=2|44=50|10=005|";

/// C2 buys 3 at 50.
pub const BUY_THREE: &str = "8=FIX.4.4|9=100|35=D|49=C2|56=VENUE|34=2|52=20250102-09:30:00|11=1|\
    55=ABC|54=1|60=20250102-09:30:00|38=3|40=2|44=50|10=003|";

/// That the first buy is accepted, as the first command.
pub const FIRST_ACKNOWLEDGED: &str = "37=1|17=1|150=0|39=0|11=1|55=ABC|54=1|38=100|44=50|151=100|\
    14=0|6=0|";

/// That the first buy is accepted, as the third command.
pub const THIRD_ACKNOWLEDGED: &str = "37=3|17=1|150=0|39=0|11=1|55=ABC|54=1|38=100|44=50|151=100|\
    14=0|6=0|";

/// The bytes of a text.
pub fn bytes_of(alloc: Global, text: &str) -> Result<Vec<u8>, AllocError> {
    let mut bytes = Vec::new(alloc);
    for &byte in text.as_bytes() {
        bytes.push(if byte == b'|' { 1 } else { byte })?;
    }
    Ok(bytes)
}

/// The message of a text that is one: of 1 to 320 bytes.
pub fn message(alloc: Global, text: &str) -> Result<Vec<u8>, NoMessage>
    ensures { IfOk result (λ message. (1 ≤ vec_len message) × (vec_len message ≤ 320)) }
{
    let Ok(message) = bytes_of(alloc, text) else {
        return Err(NoMessage);
    };
    if message.is_empty() || LONGEST_MESSAGE < message.len() {
        return Err(NoMessage);
    }
    Ok(message)
}
