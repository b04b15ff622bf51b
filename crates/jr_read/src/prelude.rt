// The texts of the units that every program begins with.
ghost use Rattle.std.specs.Prelude.{◌≡◌};
ghost use Rattle.jr_defs.specs.Prelude.{io_text, lang_text};

/// The text of java.lang.
pub fn lang_source() -> &'static str
    ensures { result.now ≡ lang_text }
{
    "\
package java.lang;
public class Object {
  public Object() { }
  public boolean equals(Object o) { return this == o; }
  public native int hashCode();
  public String toString() { return \"object\"; }
}
public final class String {
  private String() { }
  public native int length();
  public native char charAt(int i);
  public native boolean equals(Object o);
  public native int hashCode();
  public String toString() { return this; }
}
public final class System {
  public static final java.io.PrintStream out = new java.io.PrintStream();
  private System() { }
}
public class Throwable {
  private String message;
  public Throwable() { }
  public Throwable(String m) { message = m; }
  public String getMessage() { return message; }
}
public class Exception extends Throwable {
  public Exception() { }
  public Exception(String m) { super(m); }
}
public class Error extends Throwable {
  public Error() { }
  public Error(String m) { super(m); }
}
public class RuntimeException extends Exception {
  public RuntimeException() { }
  public RuntimeException(String m) { super(m); }
}
public class ArithmeticException extends RuntimeException {
  public ArithmeticException() { }
  public ArithmeticException(String m) { super(m); }
}
public class NullPointerException extends RuntimeException {
  public NullPointerException() { }
  public NullPointerException(String m) { super(m); }
}
public class ClassCastException extends RuntimeException {
  public ClassCastException() { }
  public ClassCastException(String m) { super(m); }
}
public class ArrayStoreException extends RuntimeException {
  public ArrayStoreException() { }
  public ArrayStoreException(String m) { super(m); }
}
public class NegativeArraySizeException extends RuntimeException {
  public NegativeArraySizeException() { }
  public NegativeArraySizeException(String m) { super(m); }
}
public class IndexOutOfBoundsException extends RuntimeException {
  public IndexOutOfBoundsException() { }
  public IndexOutOfBoundsException(String m) { super(m); }
}
public class IllegalArgumentException extends RuntimeException {
  public IllegalArgumentException() { }
  public IllegalArgumentException(String m) { super(m); }
}
public class IllegalStateException extends RuntimeException {
  public IllegalStateException() { }
  public IllegalStateException(String m) { super(m); }
}
public class ArrayIndexOutOfBoundsException extends IndexOutOfBoundsException {
  public ArrayIndexOutOfBoundsException() { }
  public ArrayIndexOutOfBoundsException(String m) { super(m); }
}
public class StringIndexOutOfBoundsException extends IndexOutOfBoundsException {
  public StringIndexOutOfBoundsException() { }
  public StringIndexOutOfBoundsException(String m) { super(m); }
}
"
}

/// The text of java.io.
pub fn io_source() -> &'static str
    ensures { result.now ≡ io_text }
{
    "\
package java.io;
public class PrintStream {
  public native void print(String s);
  public void print(boolean v) { print(\"\" + v); }
  public void print(char v) { print(\"\" + v); }
  public void print(int v) { print(\"\" + v); }
  public void print(long v) { print(\"\" + v); }
  public void print(Object v) { print(\"\" + v); }
  public void println() { print(\"\\n\"); }
  public void println(String v) { print(v + \"\\n\"); }
  public void println(boolean v) { print(\"\" + v + \"\\n\"); }
  public void println(char v) { print(\"\" + v + \"\\n\"); }
  public void println(int v) { print(\"\" + v + \"\\n\"); }
  public void println(long v) { print(\"\" + v + \"\\n\"); }
  public void println(Object v) { print(\"\" + v + \"\\n\"); }
}
"
}
