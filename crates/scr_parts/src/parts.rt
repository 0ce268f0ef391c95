// A bank's parts to and from a file. No branch is needed: a form without a second part has one of 0 bytes.
ghost use Rattle.std.specs.Prelude.{◌≡◌, ◌≤◌, length};
ghost use Rattle.lists.specs.Placed.{placed};
ghost use Rattle.scr_forms.specs.Forms.{form_of, sizes, bytes_in, filled};

use lists::put;
use scr_forms::row_of;
use ula_mode::Mode;

// Where the second part starts.
const SECOND: usize = 0x2000;

// Fills the parts of the bank from the front of the file. The caller has judged the bank and the file's form.
pub fn fill(bank: &mut [u8], mode: Mode, file: &[u8])
    requires { (length bank.old ≡ 16384) × (sizes (form_of mode).parts ≤ length file.now) }
    ensures { bank.new ≡ filled (form_of mode).parts bank.old file.now }
{
    let row = row_of(mode);
    let first = row.first;
    let end = first + row.second;
    put(bank, 0, &file[0..first]);
    put(bank, SECOND, &file[first..end]);
}

// Puts the parts of the bank into the front of the target, which has room for them, and tells how many bytes they are.
pub fn put_parts(target: &mut [u8], mode: Mode, bank: &[u8]) -> usize
    requires { (length bank.now ≡ 16384) × (sizes (form_of mode).parts ≤ length target.old) }
    ensures { (result ≡ sizes (form_of mode).parts) × (target.new ≡ placed target.old 0 (bytes_in (form_of mode).parts bank.now)) }
{
    let row = row_of(mode);
    let first = row.first;
    let end = SECOND + row.second;
    put(target, 0, &bank[0..first]);
    put(target, first, &bank[SECOND..end]);
    first + row.second
}
