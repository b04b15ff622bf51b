use jr_base::Request;
use jr_gen::{requests, workspace};
use std::test::Fail;

const C0: &str = "package g;

public class C0 {
  int x = 0;
  public static int step(int a) {
    int b = a + 0;
    b = b * 3;
    return b;
  }
  int next(int y) {
    return x + y;
  }
  public static void main(String[] args) {
    System.out.println(step(0) + new C0().next(1));
  }
}
";

const C10: &str = "package g;

public class C10 {
  int x = 10;
  public static int step(int a) {
    int b = a + 10;
    b = b * 3;
    return C9.step(b);
  }
  int next(int y) {
    return x + y;
  }
  public static void main(String[] args) {
    System.out.println(step(10) + new C10().next(1));
  }
}
";

#[test]
fn eleven_classes(rt: HostRuntime) -> Result<(), Fail> {
    let files = workspace(rt.alloc(), 11)?;
    let entries = files.entries();
    assert_eq!(rt; entries.len(), 11);
    assert_eq!(rt; entries[0].0.bytes(), b"g/C0.java".as_slice());
    assert_eq!(rt; entries[0].1.as_slice(), C0.as_bytes());
    assert_eq!(rt; entries[2].0.bytes(), b"g/C10.java".as_slice());
    assert_eq!(rt; entries[2].1.as_slice(), C10.as_bytes());
    Ok(())
}

#[test]
fn three_requests(rt: HostRuntime) -> Result<(), Fail> {
    let requests = requests(rt.alloc(), 2)?;
    let ok = match requests.as_slice() {
        [
            Request::Rename {
                file,
                at: 144,
                name,
            },
            Request::Move {
                file: second,
                at: 25,
                package,
            },
            Request::Extract {
                file: third,
                start: 100,
                end: 110,
                name: method,
            },
        ] => {
            file.bytes() == b"g/C0.java".as_slice()
                && name.bytes() == b"x".as_slice()
                && second.bytes() == b"g/C0.java".as_slice()
                && package.bytes() == b"h".as_slice()
                && third.bytes() == b"h/C0.java".as_slice()
                && method.bytes() == b"triple".as_slice()
        }
        _ => false,
    };
    assert!(rt; ok);
    Ok(())
}
