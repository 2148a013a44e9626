//! What clients send: texts with lengths and sums that were computed outside.
use std::alloc::{AllocError, Global};

/// C1 logs on.
pub const LOGON: &str =
    "8=FIX.4.4|9=63|35=A|49=C1|56=VENUE|34=1|52=20250102-09:30:00|98=0|108=0|141=Y|10=026|";

/// C1 buys 100 at 50.
pub const BUY: &str = "8=FIX.4.4|9=102|35=D|49=C1|56=VENUE|34=2|52=20250102-09:30:00|11=1|\
    55=ABC|54=1|60=20250102-09:30:00|38=100|40=2|44=50|10=098|";

/// C1 cancels that order.
pub const CANCEL: &str = "8=FIX.4.4|9=96|35=F|49=C1|56=VENUE|34=3|52=20250102-09:30:00|41=1|11=2|\
    55=ABC|54=1|60=20250102-09:30:00|38=100|10=055|";

/// The same order with a Text (58) of 191 letters: 320 bytes, as many as may come in.
pub const LONGEST: &str = "8=FIX.4.4|9=297|35=D|49=C1|56=VENUE|34=2|52=20250102-09:30:00|11=1|\
    55=ABC|54=1|60=20250102-09:30:00|38=100|40=2|44=50|\
    58=xxxxxxxxxxxxxxxxxxxxxxxxxxxxxxxxxxxxxxxxxxxxxxxxxxxxxxxxxxxxxxxxxxxxxxxxxxxxxxxxxxxxxxxxxxxxxxxxxxx\
    xxxxxxxxxxxxxxxxxxxxxxxxxxxxxxxxxxxxxxxxxxxxxxxxxxxxxxxxxxxxxxxxxxxxxxxxxxxxxxxxxxxxxxxxxxxx|10=164|";

/// The bytes of a text.
pub fn bytes_of(alloc: Global, text: &str) -> Result<Vec<u8>, AllocError> {
    let mut bytes = Vec::with_capacity(alloc, text.len())?;
    for &byte in text.as_bytes() {
        bytes.push(if byte == b'|' { 1 } else { byte })?;
    }
    Ok(bytes)
}
