// What is counted and found in a space bitmap, as the numbers that C lends and is given (document 02, slip 10).
// The layers above count on count and find: each answers for any bytes and numbers, with the number of the first refusal
// that applies. A result of another length than stated is line 3, which stands before 31.
#![tactic(auto)]

ghost use Rattle.std.specs.Prelude.{◌≡◌, length};
ghost use Rattle.refusal.specs.Number.{answer_number};
ghost use Rattle.call_bitmap.specs.Lent.{lent_count, counted_after, lent_find, found_after};

use call_lists::ONE;
use model::DONE;
use refusal::Refusal;

// The number of an answer, whose value is written to the lent result of length 1.
fn told(answer: Result<u32, Refusal>, res: &mut [u32]) -> u32
    requires { length res.old ≡ 1 }
    ensures value { result ≡ answer_number answer }
    ensures res_after { res.new ≡ counted_after answer res.old }
{
    match answer {
        Ok(n) => {
            res[0] = n;
            DONE
        }
        Err(why) => u32::from(why),
    }
}

// Counts the free blocks.
pub fn count(b: &[u8], l: u32, res: &mut [u32]) -> u32
    ensures value { result ≡ answer_number (lent_count b.now l res.old) }
    ensures res_after { res.new ≡ counted_after (lent_count b.now l res.old) res.old }
{
    if res.len() != ONE {
        return u32::from(Refusal::LentLength);
    }
    told(bitmap::count(b, l), res)
}

// Finds the free run of a wanted length that is nearest to a block.
pub fn find(b: &[u8], l: u32, wanted: u32, near: u32, res: &mut [u32]) -> u32
    ensures value { result ≡ answer_number (lent_find b.now l wanted near res.old) }
    ensures res_after { res.new ≡ found_after (lent_find b.now l wanted near res.old) res.old }
{
    if res.len() != ONE {
        return u32::from(Refusal::LentLength);
    }
    told(bitmap_find::find(b, l, wanted, near), res)
}
