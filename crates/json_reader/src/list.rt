// What follows an item of an array or a member of an object.
ghost use Rattle.json_reader.specs.Inner.{FollowRoom, Followed};

use crate::step::Cursor;
use model::refusal::ReadFault;
use scan::Fault;
use scan::token::{separator, skip_white};
use syntax::Separator;

// The list is done, or one more part begins.
#[derive(Clone, Copy)]
pub enum After {
    Closed(Cursor),
    More(Cursor),
}

// After the part that ended at `here`, before which there were `count`.
pub fn follow(text: &[u8], here: Cursor, count: usize, close: u8) -> Result<After, Fault>
    requires { FollowRoom text.now count }
    ensures { Followed text.now here count close result }
{
    let end = skip_white(text, here.at);
    let count = count + 1;
    match separator(text, end, close) {
        Separator::Close => Ok(After::Closed(Cursor {
            at: end + 1,
            count,
            ..here
        })),
        Separator::Comma => Ok(After::More(Cursor {
            at: skip_white(text, end + 1),
            count,
            ..here
        })),
        Separator::Neither => Err(Fault {
            reason: ReadFault::NotJson,
            at: end,
        }),
    }
}
