// What a read answers.
ghost use Rattle.std.specs.Prelude.{◌≡◌, Err};
ghost use Rattle.reply.specs.declared.Reply.TheVariants.{NoRegister};

use reply::Reply;

// Reply 9 to a read.
pub fn no_read() -> Result<u8, Reply>
    ensures { result ≡ Err NoRegister }
{
    Err(Reply::NoRegister)
}
