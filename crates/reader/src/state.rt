// The state between two lines but for the variables, by value: a method takes the old one and hands back the new one.
ghost use Rattle.std.specs.Prelude.{ℕ, List, drop};
ghost use Rattle.line.specs.Contract.{fields_in};
ghost use Rattle.question.specs.Contract.{strings_in};
ghost use Rattle.variables.specs.Contract.{definitions_in};
ghost use Rattle.reader.specs.State.{start};
ghost use Rattle.reader.specs.Contract.{Keeps, GlobalChanges};

use super::global::read_global;
use fault::Cause;
use options::arguments::Failures;
use options::set::OptionSet;
use variables::Variables;

// The options in force, which arguments fail the patterns in force, and whether `patterns=shell` was read.
#[derive(Clone, Copy)]
pub struct Reader {
    pub options: OptionSet,
    pub failures: Failures,
    pub shell: bool,
}

impl Reader {
    // How deep `:if` may stand inside `:if`.
    pub const IF_DEPTH: usize = 4;

    // Before the first line.
    pub fn new() -> Self
        ensures { (xs : List (List ℕ)) → Keeps xs result start }
    {
        Reader {
            options: OptionSet::new(),
            failures: Failures::new(),
            shell: false,
        }
    }

    // After the `:global` that the fields make from one of them on; in force from the next line. A faulty one hands none back.
    pub fn global<'a, 'b>(
        self,
        text: &'a [u8],
        ends: &'a [usize; 64],
        count: usize,
        from: usize,
        user: &[u8],
        host: &[u8],
        args: &[u8],
        bytes: &'b [u8; Variables::BYTES],
        sizes: &'b [usize; Variables::SIZES],
        names: usize,
    ) -> Result<Reader, Cause>
        ensures { GlobalChanges
            user.now host.now (definitions_in bytes.now sizes.now names)
            (strings_in args.now) (drop from (fields_in text.now ends.now count)) self result }
    {
        let read = read_global(
            self.failures,
            text,
            ends,
            count,
            from,
            user,
            host,
            args,
            bytes,
            sizes,
            names,
        )?;
        Ok(Reader {
            options: read.options.over(self.options),
            failures: read.failures,
            shell: self.shell || read.line.shell(),
        })
    }
}
