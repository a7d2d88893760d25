// A second byte and its parameters, put together as a sequence is sent.
ghost use Rattle.std.specs.Prelude.{◌≡◌, ◌≤◌, length};
ghost use Rattle.spelling.specs.Given.{given_bytes};

use spelling::Spelled;

// ESC, the second byte, the parameters; a 209 alone has its byte, 0.
pub fn gather(second: u8, parameters: &[u8]) -> Spelled
    requires { length parameters.now ≤ 11 }
    ensures { result ≡ given_bytes second parameters.now }
{
    let count = parameters.len();
    if (second == 209) & (count == 0) {
        return Spelled::of([27, 209, 0]);
    }
    let mut bytes = [27, second, 0, 0, 0, 0, 0, 0, 0, 0, 0, 0, 0];
    store::copy_in(&mut bytes, 2, parameters, 0, count);
    Spelled::front(bytes, count + 2)
}
