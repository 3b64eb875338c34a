//! An example that stands whole at the head of the library it calls.

use crate::expect::expect_equal;
use awari_words::{Request, request_of, understand};
use std::test::Fail;

#[test]
fn words_ask_for_a_move(rt: HostRuntime) -> Result<(), Fail> {
    let words = ["awari", "move", "0,0,0,0,0,1/1,0,1,0,0,0", "5"];
    let matches = understand(rt.alloc(), words.as_slice())?;
    let Some(Request::Move { board, pit }) = request_of(&matches) else {
        return Err(Fail::new("another request"));
    };
    expect_equal(&rt, pit, board, "0,0,0,0,0,1/1,0,1,0,0,0");
    Ok(())
}
