//! Texts that are laid piece by piece, in memory that wants no allocation.
ghost use Rattle.std.specs.Prelude.{◌≡◌, ◌≤◌, ◌+◌, ◌++◌, length, codes, decimal};
ghost use Rattle.arrayvec.specs.ArrayVec.{array_vec_len};
ghost use Rattle.fsd_bytes.specs.Keys.{key_text};
ghost use Rattle.fsd_texts.specs.Text.{newline};

use arrayvec::ArrayVec;
use fsd_bytes::Key;
use itoa::Buffer;

/// The text of a line: there is room for seven numbers of 20 digits and 54 bytes of words, and no line has more.
pub type LineText = ArrayVec<u8, 194>;

// Puts bytes behind the others.
pub(crate) fn put(text: &mut LineText, bytes: &[u8])
    requires { array_vec_len text.old + length bytes.now ≤ 194 }
    ensures { text.new.items ≡ text.old.items ++ bytes.now }
{
    text.try_extend_from_slice(bytes).unwrap();
}

// Puts a number behind the others.
pub(crate) fn put_number(text: &mut LineText, number: u64)
    requires { array_vec_len text.old + 20 ≤ 194 }
    ensures digits { text.new.items ≡ text.old.items ++ decimal number }
    ensures short { array_vec_len text.new ≤ array_vec_len text.old + 20 }
{
    let mut digits = Buffer::new();
    put(text, digits.format(number).as_bytes());
}

// Puts a word behind the others, and a number behind it.
pub(crate) fn put_counted(text: &mut LineText, word: &str, number: u64)
    requires { array_vec_len text.old + (length word.now + 20) ≤ 194 }
    ensures counted { text.new.items ≡ text.old.items ++ (word.now ++ decimal number) }
    ensures short { array_vec_len text.new ≤ array_vec_len text.old + (length word.now + 20) }
{
    put(text, word.as_bytes());
    put_number(text, number);
}

// Puts a key behind the others.
pub(crate) fn put_key(text: &mut LineText, key: &Key)
    requires { array_vec_len text.old + 61 ≤ 194 }
    ensures key { text.new.items ≡ text.old.items ++ key_text key.now }
    ensures short { array_vec_len text.new ≤ array_vec_len text.old + 61 }
{
    put(text, key.name.as_bytes());
    put_counted(text, "!", u64::from(key.version));
}

// Words.
pub(crate) fn words(said: &str) -> LineText
    requires { length said.now ≤ 100 }
    ensures words { result.items ≡ said.now }
    ensures short { array_vec_len result ≤ length said.now }
{
    let mut text = LineText::new();
    put(&mut text, said.as_bytes());
    text
}

// A line of a word with the space behind it, and a number.
pub(crate) fn numbered(word: &str, number: u64) -> LineText
    requires { length word.now ≤ 100 }
    ensures { result.items ≡ word.now ++ (decimal number ++ newline) }
{
    let mut text = words(word);
    put_number(&mut text, number);
    put(&mut text, b"\n");
    text
}

// The same with two numbers.
pub(crate) fn paired(word: &str, first: u64, second: u64) -> LineText
    requires { length word.now ≤ 100 }
    ensures { result.items ≡ word.now ++ (decimal first ++ (codes " " ++ (decimal second ++ newline))) }
{
    let mut text = words(word);
    put_number(&mut text, first);
    put_counted(&mut text, " ", second);
    put(&mut text, b"\n");
    text
}

// A key.
pub(crate) fn key_text(key: &Key) -> LineText
    ensures { result.items ≡ key_text key.now }
{
    let mut text = LineText::new();
    put_key(&mut text, key);
    text
}

// A number.
pub(crate) fn number_text(number: u64) -> LineText
    ensures { result.items ≡ decimal number }
{
    let mut text = LineText::new();
    put_number(&mut text, number);
    text
}
