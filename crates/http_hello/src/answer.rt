//! The answers of the server, and their bytes.
ghost use Rattle.std.specs.Prelude.{◌≡◌, ◌++◌, OnOk};
ghost use Rattle.http_hello.specs.Answers.{body_of, bytes_of, closing_of, head_of};

use std::alloc::AllocError;

/// What a request, or a client, is answered.
#[derive(Clone, Copy, Debug, PartialEq, Eq)]
pub enum Answer {
    /// 200: the one page.
    Page,
    /// 404: the path isn't `/`.
    NotFound,
    /// 405: the method isn't `GET`.
    NotAllowed,
    /// 400: no head can be read, or it is too long. It closes.
    Bad,
    /// 503: there are as many clients as there may be. It closes.
    Unavailable,
}

impl Answer {
    /// The status line and the fields, without the empty line behind them.
    fn head(self) -> &'static [u8]
        ensures { result.now ≡ head_of self }
    {
        match self {
            Answer::Page => {
                b"HTTP/1.1 200 OK\r\nContent-Type: text/plain\r\nContent-Length: 13\r\n"
            }
            Answer::NotFound => b"HTTP/1.1 404 Not Found\r\nContent-Length: 0\r\n",
            Answer::NotAllowed => {
                b"HTTP/1.1 405 Method Not Allowed\r\nAllow: GET\r\nContent-Length: 0\r\n"
            }
            Answer::Bad => b"HTTP/1.1 400 Bad Request\r\nContent-Length: 0\r\n",
            Answer::Unavailable => b"HTTP/1.1 503 Service Unavailable\r\nContent-Length: 0\r\n",
        }
    }

    /// The body. Only the page has one, so that the answer to `HEAD`, 405, has none either.
    fn body(self) -> &'static [u8]
        ensures { result.now ≡ body_of self }
    {
        match self {
            Answer::Page => b"Hello, world\n",
            _ => b"",
        }
    }

    /// Appends the whole answer to `out`. One that closes says so. After an error `out` may have a part of it.
    pub fn write_to(self, out: &mut Vec<u8>, closes: bool) -> Result<(), AllocError>
        ensures { OnOk result (out.new.items ≡ out.old.items ++ bytes_of self closes) }
    {
        out.extend_from_slice(self.head())?;
        out.extend_from_slice(closing(closes))?;
        out.extend_from_slice(b"\r\n")?;
        out.extend_from_slice(self.body())?;
        Ok(())
    }
}

// The field that says that the connection is closed behind the answer.
fn closing(closes: bool) -> &'static [u8]
    ensures { result.now ≡ closing_of closes }
{
    if closes {
        b"Connection: close\r\n"
    } else {
        b""
    }
}
