// Sources and what they are, one on a line: the outline of the tree, or the fault. The outlines are written by hand from the grammar (JLS 18).

/// Expressions, each as the value of a field.
pub const EXPRESSIONS: &str = "\
a => a
a.b.c => a.b.c
this => this
a.b.this => this a.b
super.x => super.x
1 => 1
0x10L => 16L
'c' => '99'
\"s\" => text
true => true
null => null
-2147483648 => u- least
-9223372036854775808L => u- leastL
a[0] => [] a 0
a[b][c] => [] [] a b c
a.b[c].d => .d [] a.b c
f() => f/0
a.b(c, d) => b/2 of a c d
(a).b(c) => b/1 of () a c
super.f(a) => f/1 super a
this.f().g => .g f/0 of this
new T(a, b) => new/2 T a b
new a.T() => new/0 a.T
new T().x => .x new/0 T
new T[2][] => new[]/1/1 T 2
new int[a][b] => new[]/2/0 int a b
new int[] { 1, { 2, }, } => new[]/0/1 int {2,} 1 {1,} 2
new int[][] {} => new[]/0/2 int {0}
a++ => _++ a
--a => --_ a
-a++ => u- _++ a
- -a => u- u- a
!~a => u! u~ a
+a - -b => - u+ a u- b
a++ + ++b => + _++ a ++_ b
(a) - b => - () a b
(a) + b => + () a b
(a)(b) => cast type a () b
(a) b => cast type a b
(a.b) c.d => cast type a.b c.d
(a) ~b => cast type a u~ b
(a) !b => cast type a u! b
(a) 1 => cast type a 1
(a) this.b => cast type a .b this
(a) new T() => cast type a new/0 T
(int) + b => cast int u+ b
(int) -b => cast int u- b
(int) ++b => cast int ++_ b
(int[]) b => cast int[] b
(a[]) b => cast type[] a b
(a[0]) => () [] a 0
(a.this) => () this a
((a)) - b => - () () a b
(a)(b) - c => - cast type a () b c
(int) a * b => * cast int a b
a * b + c => + * a b c
a + b * c => + a * b c
a - b - c => - - a b c
a - (b - c) => - a () - b c
a / b * c % d => % * / a b c d
a << b + c => << a + b c
a << b >> c >>> d => >>> >> << a b c d
a < b << c => < a << b c
a < b >= c => >= < a b c
a == b < c => == a < b c
a != b == c => == != a b c
a instanceof T == b => == instanceof a type T b
a instanceof int[] => instanceof a int[]
a < b instanceof T => instanceof < a b type T
a & b == c => & a == b c
a ^ b & c => ^ a & b c
a | b ^ c => | a ^ b c
a && b | c => && a | b c
a || b && c => || a && b c
a && b || c => || && a b c
a ? b : c => ?: a b c
a || b ? c : d => ?: || a b c d
a ? b : c ? d : e => ?: a b ?: c d e
a ? b ? c : d : e => ?: a ?: b c d e
a ? b = c : d => ?: a = b c d
a = b = c => = a = b c
a += b -= 1 => += a -= b 1
a[0] = b ? c : d => = [] a 0 ?: b c d
a.b = c => = a.b c
this.a >>>= b => >>>= .a this b
super.a = b => = super.a b";

/// Statements, each as the body of a method.
pub const STATEMENTS: &str = "\
; => skip
{ } => nest block/0
{ ; ; } => nest block/2 skip skip
int a; => local/1 int a
final int a = 1, b[] = { }; => final-local/2 int a 1 b[] {0}
a b; => local/1 type a b
a.b.c d = e; => local/1 type a.b.c d e
a[] b; => local/1 type[] a b
a[][] b[]; => local/1 type[][] a b[]
a = 1; => eval = a 1
a[0] = 1; => eval = [] a 0 1
a[0][1]++; => eval _++ [] [] a 0 1
a(); => eval a/0
a.b(c); => eval b/1 of a c
a++; => eval _++ a
--a; => eval --_ a
new T(); => eval new/0 T
this.a(); => eval a/0 of this
super.a(); => eval a/0 super
a.this.b(); => eval b/0 of this a
(a).b(); => eval b/0 of () a
\"s\".b(); => eval b/0 of text
if (a) b(); => if a eval b/0
if (a) b(); else c(); => if-else a eval b/0 eval c/0
if (a) if (b) c(); else d(); => if a if-else b eval c/0 eval d/0
if (a) { if (b) c(); } else d(); => if-else a nest block/1 if b eval c/0 eval d/0
if (a) while (b) if (c) ; else ; => if a while b if-else c skip skip
if (a) if (b) ; else ; else ; => if-else a if-else b skip skip skip
while (a) b(); => while a eval b/0
do a(); while (b); => do eval a/0 b
for (;;) ; => for/0 skip
for (int i = 0, j; i < j; i++, --j) ; => for/2 first-local int i 0 j < i j _++ i --_ j skip
for (a b = c; ; ) ; => for/0 first-local type a b c skip
for (a[] b; ; ) ; => for/0 first-local type[] a b skip
for (final int i; a; ) break; => for/0 first-local int i a break
for (a = 1, b(); ; ) ; => for/0 first/2 = a 1 b/0 skip
for (a[0] = 1; ; ) ; => for/0 first/1 = [] a 0 1 skip
switch (a) { } => switch/0 a
switch (a) { case 1: case b: c(); break; default: } => switch/2 a group:case:case/2 1 b eval c/0 break group:default/0
a: b(); => a: eval b/0
a: b: while (c) continue a; => a: b: while c continue a
break; => break
break a; => break a
continue; => continue
return; => return
return a + 1; => return + a 1
throw a; => throw a
try { } finally { } => try/0 block/0 block/0
try { a(); } catch (E e) { } => try/1 block/1 eval a/0 catch param e type E block/0
try { } catch (final a.E e[]) { } finally { } => try/1 block/0 catch param e type a.E block/0 block/0";

/// Whole units.
pub const UNITS: &str = "\
; => ;
; ; => ; ;
package a.b; => package a.b
import a; => import a
package a; import b.C; import d.*; import e.f.*; => package a import b.C import-all d import-all e.f
import static a.b; import static c.D.e; => import-static b a import-static e c.D
class C { } => class/0/0/0 C
class A { } interface B { } ; => class/0/0/0 A interface/0/0/0 B ;
class C extends a.B implements D, e.F { } => class/0/2/0 C a.B D e.F
public abstract final class C { ; } => class/3/0/1 C nested ;
interface I extends J, K { } => interface/0/2/0 I J K
protected static interface I { int A = 1; void m(); } => interface/2/0/2 I field/0/1 int A 1 method/0/0/0 m
class C { int a, b[] = { 1, 2 }, c; } => class/0/0/1 C field/0/3 int a b[] {2} 1 2 c
class C { static final a.B[] c = d; } => class/0/0/1 C field/2/1 type[] a.B c d
class C { boolean a; byte b; short c; char d; int e; long f; } => class/0/0/6 C field/0/1 boolean a field/0/1 byte b field/0/1 short c field/0/1 char d field/0/1 int e field/0/1 long f
class C { C() { } } => class/0/0/1 C constructor/0/0/0 C block/0
class C { private C(int a, final b.D c) throws E, f.G { this(a); } } => class/0/0/1 C constructor/1/2/2 C param a int param c type b.D E f.G block/1 this/1 a
class C { C() { super(a, b); c(); } } => class/0/0/1 C constructor/0/0/0 C block/2 super/2 a b eval c/0
class C { C() { this.a = b; } } => class/0/0/1 C constructor/0/0/0 C block/1 eval = .a this b
class C { C() { super.a(); } } => class/0/0/1 C constructor/0/0/0 C block/1 eval a/0 super
class C { void m() { } native int[] n(a b[]); } => class/0/0/2 C method/0/0/0 m block/0 method/1/1/0 n int[] param b type a
class C { a m() throws b { return c; } } => class/0/0/1 C method/0/0/1 m type a b block/1 return c
class C { a.b m() { } a[] d; a e; } => class/0/0/3 C method/0/0/0 m type a.b block/0 field/0/1 type[] a d field/0/1 type a e
class C { { } static { } } => class/0/0/2 C init block/0 static-init block/0
class C { class D { interface E { } } } => class/0/0/1 C nested class/0/0/1 D nested interface/0/0/0 E
class C { public static class D { } ; } => class/0/0/2 C nested class/2/0/0 D nested ;";

/// Units that the grammar does not have, and the number of the first token that shows it, or of all tokens.
pub const BROKEN_UNITS: &str = "\
a => NoTree(0)
enum E { } => NoTree(0)
public => NoTree(1)
public ; => NoTree(1)
public import a; => NoTree(1)
package ; => NoTree(1)
package a => NoTree(2)
package a; package b; => NoTree(3)
import a; package b; => NoTree(3)
class C { } import a; => NoTree(4)
import *; => NoTree(1)
import a.b.; => NoTree(5)
import a.*.b; => NoTree(4)
import static a; => NoTree(3)
import static a.*; => NoTree(4)
class { } => NoTree(1)
class C => NoTree(2)
class C { => NoTree(3)
class C { } } => NoTree(4)
class C<T> { } => NoTree(2)
class C extends A, B { } => NoTree(4)
class C implements A extends B { } => NoTree(4)
interface I implements J { } => NoTree(2)
class C { int } => NoTree(4)
class C { int a } => NoTree(5)
class C { a; } => NoTree(4)
class C { float a; } => NoTree(3)
class C { int a() } => NoTree(7)
class C { int a()[] { } } => NoTree(7)
class C { int a(int b...) { } } => NoTree(8)
class C { int a(int b,) { } } => NoTree(9)
class C { int a() throws { } } => NoTree(8)
class C { C() ; } => NoTree(6)
class C { public { } } => NoTree(4)
class C { static static { } } => NoTree(5)
class C { public ; } => NoTree(4)
class C { synchronized void m() { } } => NoTree(3)
class C { void m() { => NoTree(8)
class C { void m() { } => NoTree(9)
strictfp class C { } => NoTree(0)
class C extends { } => NoTree(3)
class C implements A, { } => NoTree(5)
class C { double a; } => NoTree(3)
class C { volatile int a; } => NoTree(3)
class C { transient int a; } => NoTree(3)
class C { <T> void m() { } } => NoTree(3)
class C { A<B> a; } => NoTree(4)
class C { void a; } => NoTree(5)
class C { int a, b c; } => NoTree(7)
class C { int a = ; } => NoTree(6)
class C { C(int) { } } => NoTree(6)
class C { abstract public } => NoTree(5)
class C { C() { ; this(); } } => NoTree(9)";

/// Statements that the grammar does not have; the body's first token is the eighth after the first.
pub const BROKEN_STATEMENTS: &str = "\
a => NoTree(9)
a + b; => NoTree(9)
a.b; => NoTree(11)
a.(b); => NoTree(10)
1; => NoTree(9)
(a); => NoTree(11)
a[0]; => NoTree(12)
a[] = b; => NoTree(11)
int a b; => NoTree(10)
int a => NoTree(10)
if (a) int b; => NoTree(12)
if a; => NoTree(9)
else ; => NoTree(8)
do ; while (a) => NoTree(14)
while () ; => NoTree(10)
for (int i = 0; i < 1) ; => NoTree(18)
for (a : b) ; => NoTree(11)
switch (a) { b(); } => NoTree(13)
switch (a) { case 1 b(); } => NoTree(15)
try { } => NoTree(11)
catch (E e) { } => NoTree(8)
try { } catch { } finally { } => NoTree(12)
throw; => NoTree(9)
return a b; => NoTree(10)
break 1; => NoTree(9)
this(a); => NoTree(9)
super(a); => NoTree(9)
x -> y; => NoTree(9)
int x = y -> z; => NoTree(13)
synchronized (a) { } => NoTree(8)
assert a; => NoTree(8)
class D { } => NoTree(8)
new T() { }; => NoTree(12)
int a = { 1 } 2; => NoTree(14)
a: => NoTree(10)
a: int b; => NoTree(10)
a.b: c(); => NoTree(11)
{ a(); => NoTree(15)
int a = 1, ; => NoTree(13)
a<b> c; => NoTree(9)
++a + b; => NoTree(10)
(a) b; => NoTree(11)
new int[1]; => NoTree(13)
if (a) b c; => NoTree(13)
if (a) b[] c; => NoTree(14)
if (a) ; else int b; => NoTree(14)
while (a) int b; => NoTree(12)
do int a; while (b); => NoTree(9)
for (;;) int a; => NoTree(13)
for (int a : b) ; => NoTree(12)
try (a b = c) { } => NoTree(9)
case 1: ; => NoTree(8)
default: ; => NoTree(8)
finally { } => NoTree(8)
goto a; => NoTree(8)
static int a; => NoTree(8)
final class D { } => NoTree(9)";

/// Expressions that the grammar does not have; the first token of the value is the sixth after the first.
pub const BROKEN_EXPRESSIONS: &str = "\
2147483648 => NoTree(6)
a ? b => NoTree(9)
(a => NoTree(8)
a instanceof 1 => NoTree(8)
a = => NoTree(8)
a + b = c => NoTree(9)
f() = c => NoTree(9)
++a = b => NoTree(8)
a instanceof T + b => NoTree(9)
new T => NoTree(8)
new int[] => NoTree(10)
new int[1] { } => NoTree(11)
new int[1][][2] => NoTree(14)
(int) => NoTree(9)
(int[] a) => NoTree(10)
(a[]) - b => NoTree(11)
int.class => NoTree(6)
a.class => NoTree(8)
a.super.b => NoTree(8)
a.new I() => NoTree(8)
a.this() => NoTree(9)
f(a,) => NoTree(10)
f(a b) => NoTree(9)
a[b => NoTree(9)
super => NoTree(7)
{ 1, , } => NoTree(9)
- => NoTree(7)
a b => NoTree(7)
a -> b => NoTree(8)
() -> a => NoTree(7)
a::b => NoTree(7)
a <> b => NoTree(8)
a < b ? c => NoTree(11)
a ? b : c = d => NoTree(11)
1 = a => NoTree(7)
this = a => NoTree(7)
(a) = b => NoTree(9)
!a = b => NoTree(8)
a.b() += c => NoTree(11)
a[] => NoTree(8)
a instanceof T. => NoTree(10)
(a b) => NoTree(8)
(a.b[]) => NoTree(13)
new (a) => NoTree(7)
new int => NoTree(8)
new int() => NoTree(8)
new T[] => NoTree(10)
new T[1] { } => NoTree(11)
{ }[0] => NoTree(8)
super() => NoTree(7)
this() => NoTree(7)";
